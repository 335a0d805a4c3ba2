// Runs that are generated from two numbers: their events by names and by numbers, the draws after them, and runs of few instances.
use std::alloc::Global;
use std::test::Fail;
use wf_events::write_event;
use wf_gen::Gen;
use wf_samples::sample;

/// Steps without ports: a Main is done by an Align, a Refine, a Build and a Report; a Refine by a Realign and a Refine, or by a Score; and a Build by a Split and an Infer.
const STEPS: &str =
    r#"{"start":"Main","modules":[{"name":"Main"},{"name":"Align"},{"name":"Refine"},{"name":"Realign"},{"name":"Score"},{"name":"Build"},{"name":"Split"},{"name":"Infer"},{"name":"Report"}],"productions":[{"head":"Main","body":[["al","Align"],["re","Refine"],["bu","Build"],["rp","Report"]]},{"head":"Refine","body":[["rl","Realign"],["nx","Refine"]]},{"head":"Refine","body":[["sc","Score"]]},{"head":"Build","body":[["sp","Split"],["inf","Infer"]]}]}"#;

/// An S is done by four A and a P among them; an A by a B and a P, in this order or the other; and a B by a P.
const MANY: &str =
    r#"{"start":"S","modules":[{"name":"S"},{"name":"A"},{"name":"B"},{"name":"P"}],"productions":[{"head":"S","body":[["a","A"],["b","A"],["c","P"],["d","A"],["e","A"]]},{"head":"A","body":[["p","B"],["q","P"]]},{"head":"A","body":[["p","P"],["q","B"]]},{"head":"B","body":[["p","P"]]}]}"#;

/// A run: the text of its specification, how many expansions are asked for, the seed, and how many instances it may have.
type Asked = (&'static str, u32, u64, u32);

/// The lines of a run that is not expanded, and of one that ends with its first expansion.
const STARTED: &str = "{\"start\":\"n0\"}\n";

const EXPANDED: &str =
    "{\"start\":\"n0\"}\n{\"expand\":\"n0\",\"production\":0,\"names\":[\"n1\",\"n2\",\"n3\",\"n4\"]}\n";

/// Each line: a run, its lines where they are few, and the draw after the last of them. The draws of a turn that would pass the limit are spent. The values are those of a program that was written apart.
const RUNS: [(Asked, Option<&str>, u32); 7] = [
    ((STEPS, 12, 4, 16_777_216), None, 1_575_912_754),
    ((STEPS, 4, 1, 16_777_216), None, 3_688_506_836),
    ((STEPS, 1, 1, 16_777_216), Some(EXPANDED), 3_403_630_417),
    ((STEPS, 4, 1, 6), Some(EXPANDED), 4_177_522_235),
    ((STEPS, 0, 1, 1), Some(STARTED), 866_585_574),
    ((STEPS, 4, 1, 1), Some(STARTED), 3_403_630_417),
    ((MANY, 8, 2, 16_777_216), None, 1_042_745_095),
];

/// The lines of the events of a run, each written from its names, and the draw after them.
fn by_names(alloc: Global, (text, n, seed, most): Asked) -> Result<(Vec<u8>, u32), Fail> {
    if most < 1 {
        return Err(Fail::new("a limit from 1 on"));
    }
    let s = sample(alloc, text)?;
    let mut run = Gen::new(alloc, s.linear(), n, seed, most);
    let mut lines = Vec::new(alloc);
    for _ in 0..16 {
        let Some(event) = run.next()? else {
            return Ok((lines, run.draw()));
        };
        write_event(&event, &mut lines)?;
        lines.push(b'\n')?;
    }
    Err(Fail::new("a run of fewer than 16 events"))
}

/// The lines of the events of a run, each written from its numbers, and the draw after them.
fn by_numbers(alloc: Global, (text, n, seed, most): Asked) -> Result<(Vec<u8>, u32), Fail> {
    if most < 1 {
        return Err(Fail::new("a limit from 1 on"));
    }
    let s = sample(alloc, text)?;
    let mut run = Gen::new(alloc, s.linear(), n, seed, most);
    let mut lines = Vec::new(alloc);
    for _ in 0..16 {
        if !run.write_next(&mut lines)? {
            return Ok((lines, run.draw()));
        }
    }
    Err(Fail::new("a run of fewer than 16 events"))
}

/// Whether a run has these lines and this draw, by names and by numbers.
fn is_generated(
    alloc: Global,
    asked: Asked,
    wanted: Option<&str>,
    draw: u32,
) -> Result<bool, Fail> {
    let (lines, next) = by_numbers(alloc, asked)?;
    let (named, after) = by_names(alloc, asked)?;
    let is_told = match wanted {
        Some(text) => lines.as_slice() == text.as_bytes(),
        None => true,
    };
    Ok(is_told && lines.as_slice() == named.as_slice() && (next, after) == (draw, draw))
}

#[test]
fn runs_are_generated(rt: HostRuntime) -> Result<(), Fail> {
    for &(asked, lines, draw) in &RUNS {
        assert!(rt; is_generated(rt.alloc(), asked, lines, draw)?, "at {draw}");
    }
    Ok(())
}

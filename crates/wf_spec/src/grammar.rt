// Workflow grammars.
ghost use Rattle.std.specs.Prelude.{◌≡◌, ◌<◌, ◌≤◌, ◌↔◌, [], map, length, option_map, position, bytes_eq, IfOk, IfSome, IsTrue};
ghost use Rattle.wf_model.specs.Composite.{is_composite};
ghost use Rattle.wf_model.specs.Grammar.{IsAtomic, IsComposite, alternative_of, inputs_of, outputs_of, production_at};
ghost use Rattle.wf_model.specs.Lists.{numbers_from};
ghost use Rattle.wf_model.specs.WellFormed.{IsWellFormed};
ghost use Rattle.wf_spec.specs.Held.{grammar_of_lists, AreVersionsOf};
ghost use Rattle.wf_spec.specs.Tables.{AreRowsOf, productions_of};

use crate::given::Given;
use crate::lists::heads::{ByHead, by_head, numbered};
use crate::lists::names::name_table;
use crate::lists::rows::rows_from;
use crate::module::Module;
use crate::production::Production;
use crate::rule::Rule;
use crate::version::Version;
use std::alloc::{AllocError, Global};
use std::marker::Model;
use wf_model::{ModNo, ProdNo, Seq};
use wf_names::Names;

/// A well-formed workflow grammar.
#[derive(Drop)]
pub struct Grammar {
    start: ModNo,
    modules: Seq<Module>,
    productions: Seq<Production>,
    given: Seq<Given>,
    names: Names,
    by_head: Vec<Vec<ProdNo>>,
    rows: Vec<Vec<u64>>,
    versions: Seq<Version>,
}

impl Model for Grammar {
    ghost use Rattle.std.specs.Prelude.{map};
    ghost use Rattle.wf_spec.specs.Held.{HeldGrammar, core_of, AreVersionsOf};
    ghost use Rattle.wf_spec.specs.Tables.{IsKept, numbers_in};

    ghost Value = { HeldGrammar };

    ghost view = { λ g. record { core = core_of g.start.0 g.modules g.productions g.given; versions = g.versions } };

    ghost invariant = { λ g. IsKept (core_of g.start.0 g.modules g.productions g.given) g.names (numbers_in g.by_head.items)
        (map (λ v. v.items) g.rows.items) (map (λ p. p.alternative) g.productions)
        × AreVersionsOf (core_of g.start.0 g.modules g.productions g.given) g.versions };
}

impl Grammar {
    /// The grammar of these lists, with no earlier versions. Fails only for want of memory.
    ///
    /// The grammar hashes the names of its modules with the key.
    ///
    /// Cost: for each module one look-up by hashing and one copy of its name; linear in the inputs of the modules, in the rules and in the pairs that are given, with 8 bytes for each input.
    pub fn of_lists(
        alloc: Global,
        key: u64,
        start: ModNo,
        modules: Vec<Module>,
        rules: Vec<Rule>,
        given: Vec<Given>,
    ) -> Result<Grammar, AllocError>
        requires { IsWellFormed (grammar_of_lists start.0 modules.items rules.items given.items) }
        ensures core { IfOk result (λ g. g.core ≡ grammar_of_lists start.0 modules.items rules.items given.items) }
        ensures versions { IfOk result (λ g. g.versions ≡ []) }
    {
        let names = name_table(alloc, key, &modules)?;
        let rows = rows_from(alloc, &modules, &given)?;
        let ByHead { lists, places } = by_head(alloc, modules.len(), &rules)?;
        let productions = numbered(alloc, rules, &places)?;
        Ok(Grammar {
            start,
            modules: Seq::from_vec(modules),
            productions: Seq::from_vec(productions),
            given: Seq::from_vec(given),
            names,
            by_head: lists,
            rows,
            versions: Seq::from_vec(Vec::new(alloc)),
        })
    }

    /// The grammar with these earlier versions, in place of its own.
    pub fn with_versions(self, versions: Seq<Version>) -> Grammar
        requires { AreVersionsOf self.core versions }
        ensures { result ≡ record { core = self.core; versions = versions } }
    {
        Grammar { versions, ..self }
    }

    /// Its earlier versions, in the order in which the specification names them.
    pub fn versions(&self) -> &[Version]
        ensures versions { result.now ≡ self.now.versions }
        ensures fit { AreVersionsOf self.now.core self.now.versions }
    {
        self.versions.items()
    }

    /// The start module.
    pub fn start(&self) -> ModNo
        ensures start { result.0 ≡ self.now.core.start }
        ensures formed { IsWellFormed self.now.core }
    {
        self.start
    }

    /// The modules, by number.
    pub fn modules(&self) -> &[Module]
        ensures modules { result.now ≡ self.now.core.modules }
        ensures formed { IsWellFormed self.now.core }
    {
        self.modules.items()
    }

    /// The productions, by number.
    pub fn productions(&self) -> &[Production]
        ensures productions { map (λ p. p.core) result.now ≡ self.now.core.productions }
        ensures alternatives { map (λ p. p.alternative) result.now ≡ map (alternative_of self.now.core) (numbers_from 0 (length self.now.core.productions)) }
        ensures formed { IsWellFormed self.now.core }
    {
        self.productions.items()
    }

    /// The production of a number.
    pub fn production(&self, p: ProdNo) -> &Production
        requires { p.0 < length self.now.core.productions }
        ensures core { result.now.core ≡ production_at self.now.core p.0 }
        ensures alternative { result.now.alternative ≡ alternative_of self.now.core p.0 }
        ensures formed { IsWellFormed self.now.core }
    {
        &self.productions.items()[p.0 as usize]
    }

    /// The module that has a name, or `None` where no module has it. Cost: one look-up by hashing.
    pub fn find(&self, name: &[u8]) -> Option<ModNo>
        ensures place { option_map (λ m. m.0) result ≡ position (bytes_eq name.now) (map (λ m. m.name) self.now.core.modules) }
        ensures within { IfSome result (λ m. m.0 < length self.now.core.modules) }
    {
        let _modules = &self.modules;
        let place = self.names.find(name)?;
        prove!(place < 1024);
        Some(ModNo(place as u16))
    }

    /// The productions of a module, in order: none for an atomic module.
    pub fn alternatives(&self, m: ModNo) -> &[ProdNo]
        requires { m.0 < length self.now.core.modules }
        ensures { map (λ p. p.0) result.now ≡ productions_of self.now.core m.0 }
    {
        self.by_head[m.0 as usize].as_slice()
    }

    /// The pairs that are given to an atomic module, all of them where the specification gives none: a row for each input, in which bit `o` stands for output `o`.
    pub fn rows(&self, m: ModNo) -> &[u64]
        requires in_range { m.0 < length self.now.core.modules }
        requires atomic { IsAtomic self.now.core m.0 }
        ensures { AreRowsOf self.now.core m.0 result.now }
    {
        self.rows[m.0 as usize].as_slice()
    }

    /// Whether a module is the head of a production.
    pub fn is_composite(&self, m: ModNo) -> bool
        requires { m.0 < length self.now.core.modules }
        ensures test { result ≡ is_composite self.now.core m.0 }
        ensures composite { IsTrue result ↔ IsComposite self.now.core m.0 }
    {
        !self.alternatives(m).is_empty()
    }

    /// How many inputs a module has.
    pub fn input_count(&self, m: ModNo) -> u8
        requires { m.0 < length self.now.core.modules }
        ensures count { result ≡ inputs_of self.now.core m.0 }
        ensures few { result ≤ 64 }
        ensures formed { IsWellFormed self.now.core }
    {
        self.modules()[m.0 as usize].inputs().len() as u8
    }

    /// How many outputs a module has.
    pub fn output_count(&self, m: ModNo) -> u8
        requires { m.0 < length self.now.core.modules }
        ensures count { result ≡ outputs_of self.now.core m.0 }
        ensures few { result ≤ 64 }
        ensures formed { IsWellFormed self.now.core }
    {
        self.modules()[m.0 as usize].outputs().len() as u8
    }
}

// The numbers of ports in states.
ghost use Rattle.std.specs.Prelude.{◌≡◌, ◌<◌, ◌≤◌, ◌*◌, ◌+◌};
ghost use Rattle.words_model.specs.Lifting.{in_state};

/// The number of a port in a state, which is below 64.
pub fn in_state(states: u8, s: u8, port: u8) -> u8
    requires low { port * states + states ≤ 64 }
    requires state { s < states }
    ensures number { result ≡ in_state states s port }
    ensures few { result < 64 }
{
    let first = port * states;
    first + s
}

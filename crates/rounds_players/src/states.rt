// States as numbers: bit v of a state is set where node v is failed.
ghost use Rattle.std.specs.Prelude.{◌≡◌, ◌^◌, ◌≤◌};
ghost use Rattle.rounds.specs.States.{down_in};

// Whether node v is failed.
pub(crate) fn is_down(state: usize, v: usize) -> bool
    requires { v ≤ 10 }
    ensures { result ≡ down_in state v }
{
    (state >> v) % 2 == 1
}

// The state in which node v alone is failed, and the number of states of v nodes.
pub(crate) fn bit(v: usize) -> usize
    requires { v ≤ 10 }
    ensures { result ≡ 2 ^ v }
{
    1 << v
}

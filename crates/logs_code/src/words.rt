// The words of a line: where they begin and end, and what they say.
ghost use Rattle.std.specs.Prelude.{◌≡◌};
ghost use Rattle.table.specs.Lines.{is_blank};
ghost use Rattle.logs.specs.Lines.{blanks as blanks_of, solid as solid_of, state_of, number_of};

use logs::State;

// Whether the byte is a space, a tab or a carriage return.
fn is_blank(byte: u8) -> bool
    ensures { result ≡ is_blank byte }
{
    matches!(byte, b' ' | b'\t' | b'\r')
}

// How many blanks the bytes begin with.
pub(crate) fn blanks(bytes: &[u8]) -> usize
    ensures { result ≡ blanks_of bytes.now }
{
    bytes
        .iter()
        .position(|b| !is_blank(*b))
        .unwrap_or(bytes.len())
}

// How many bytes stand before the first blank.
pub(crate) fn solid(bytes: &[u8]) -> usize
    ensures { result ≡ solid_of bytes.now }
{
    bytes
        .iter()
        .position(|b| is_blank(*b))
        .unwrap_or(bytes.len())
}

// The word as a number of at most 32 bits.
pub(crate) fn number_of(word: &[u8]) -> Option<u32>
    ensures { result ≡ number_of word.now }
{
    if word.len() == 0 {
        return None;
    }
    let mut value: usize = 0;
    for byte in word {
        let byte = usize::from(*byte);
        if byte < 48 {
            return None;
        }
        if 57 < byte {
            return None;
        }
        value = value * 10 + (byte - 48);
        if 4_294_967_295 < value {
            return None;
        }
    }
    Some(value as u32)
}

// The word as a node's new state.
#[tactic(auto, using(crate::proofs::Places::same_pointwise), unfolding(logs::specs::Lines::state_of))]
pub(crate) fn state_of(word: &[u8]) -> State
    ensures { result ≡ state_of word.now }
{
    if word == b"down".as_slice() {
        return State::Down;
    }
    if word == b"up".as_slice() {
        return State::Up;
    }
    State::Other
}

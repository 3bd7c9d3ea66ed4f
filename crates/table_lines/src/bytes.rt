// Looking for a byte.
ghost use Rattle.std.specs.Prelude.{◌≡◌, length};
ghost use Rattle.table.specs.Lines.{before};

// How many bytes stand before the first such byte; all where there is none.
pub fn first_of(bytes: &[u8], byte: u8) -> usize
    ensures { result ≡ length (before byte bytes.now) }
{
    for i in 0..bytes.len() {
        if bytes[i] == byte {
            return i;
        }
    }
    bytes.len()
}

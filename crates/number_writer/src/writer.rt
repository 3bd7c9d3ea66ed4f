// Writing numbers of one to four groups of seven bits.
ghost use Rattle.std.specs.Prelude.{◌≡◌, length};
ghost use Rattle.refusal.specs.Checked.{written};
ghost use Rattle.number.specs.Numbers.{number_bytes, write_number};
ghost use Rattle.number.specs.Answers.{number_written};

use refusal::Refusal;

// How many groups hold `v`, four at most.
fn form_length(v: usize) -> usize
    ensures { result ≡ length (number_bytes v) }
{
    if v < 128 {
        return 1;
    }
    if v < 16_384 {
        return 2;
    }
    if v < 2_097_152 {
        return 3;
    }
    4
}

// How many bytes the shortest form of `v` has, now at the start of `out`; or refusal 4 or 11, with `out` unchanged.
pub fn write_number(out: &mut [u8], v: usize) -> Result<usize, Refusal>
    ensures { (result ≡ number_written (write_number (length out.old) v))
        × (out.new ≡ written (write_number (length out.old) v) out.old) }
{
    if 268_435_455 < v {
        return Err(Refusal::OutsideLimits(0));
    }
    let need = form_length(v);
    if out.len() < need {
        return Err(Refusal::ShortOutput(need));
    }
    let mut rest = v;
    let mut i: usize = 0;
    // A while loop: it ends with the number, and not at a place.
    while 128 <= rest {
        out[i] = (128 + rest % 128) as u8;
        rest /= 128;
        i += 1;
    }
    out[i] = rest as u8;
    Ok(need)
}

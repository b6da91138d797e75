// Writes clauses as text at the front of a buffer. Each function says how many bytes it wrote.
// kept: `as` to usize, which has no From; it is proved to lose nothing.
ghost use Rattle.std.specs.Prelude.{◌≡◌, ◌≤◌, length, decimal};
ghost use Rattle.text_store.specs.Bytes.{WroteFront};
ghost use Rattle.text_store.specs.Texts.{text_literal, text_clause};

use itoa::write_digits;

// How many digits a number has.
fn count_digits(number: u32) -> usize
    ensures { result ≡ length (decimal number) }
{
    if number < 10 {
        return 1;
    }
    number.ilog10() as usize + 1
}

// A literal and the space behind it. It stays out of line, so that a put is small enough to be built into its callers.
#[inline(never)]
fn write_literal(out: &mut [u8], literal: i32) -> usize
    requires { length (text_literal literal) ≤ length out.old }
    ensures { WroteFront (text_literal literal) out.old result out.new }
{
    let number = literal.unsigned_abs();
    let mut end = count_digits(number);
    if literal < 0 {
        out[0] = b'-';
        end += 1;
    }
    write_digits(u64::from(number), out, end);
    out[end] = b' ';
    end + 1
}

// A clause: its literals, a zero and a newline.
pub(crate) fn write_clause(out: &mut [u8], clause: &[i32]) -> usize
    requires { length (text_clause clause.now) ≤ length out.old }
    ensures { WroteFront (text_clause clause.now) out.old result out.new }
{
    // kept: tried as a fold; its closure writes the buffer that it captures, and what stands there then stayed open.
    let mut end = 0;
    for literal in clause {
        end += write_literal(&mut out[end..], *literal);
    }
    out[end] = b'0';
    out[end + 1] = b'\n';
    end + 2
}

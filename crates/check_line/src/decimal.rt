// A number in decimal.
ghost use Rattle.std.specs.Prelude.{◌≡◌, ◌+◌, ◌≤◌, length};
ghost use Rattle.octets.specs.Bytes.{placed};
ghost use Rattle.check_line.specs.Line.{decimal};

// Kept: `write!` promises its bytes only where it returns `Ok`, and no contract says when it does; the line has to be written always.
// Writes n to out, from a place on, and returns the place behind it.
pub fn put_decimal(n: u64, out: &mut [u8], at: usize) -> usize
    requires { at + length (decimal n) ≤ length out.old }
    ensures { (result ≡ at + length (decimal n)) × (out.new ≡ placed (decimal n) at out.old) }
{
    if n < 10 {
        out[at] = 48 + n as u8;
        return at + 1;
    }
    let end = put_decimal(n / 10, out, at);
    out[end] = 48 + (n % 10) as u8;
    end + 1
}

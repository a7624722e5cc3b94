// Parts of lent bytes as a whole: are two the same, is one all 0, make one all 0. The question for 0 has no early end, as `all` has one, so
// that the compiler takes many bytes at a time: a log has some 270,000 of them, and nearly all are 0.
#![tactic(auto)]

ghost use Rattle.std.specs.Prelude.{◌≡◌, length, replicate};
ghost use Rattle.log_format.specs.Fits.{same_bytes, zeros};

// Are the bytes of two parts of one length the same?
pub fn same(s: &[u8], t: &[u8]) -> bool
    requires { length s.now ≡ length t.now }
    ensures { result ≡ same_bytes s.now t.now }
{
    s == t
}

// Are all bytes 0?
pub fn is_zero(s: &[u8]) -> bool
    ensures { result ≡ zeros s.now }
{
    let mut so_far = true;
    for byte in s {
        so_far &= *byte == 0;
    }
    so_far
}

// Makes all bytes 0.
pub fn clear(s: &mut [u8])
    ensures { s.new ≡ replicate (length s.old) 0 }
{
    s.fill(0);
}

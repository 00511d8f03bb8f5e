// The digits that go on freely behind what is pending, copied without a look at what is pending for each.
ghost use Rattle.std.specs.Prelude.{◌≡◌, ◌+◌, ◌-◌, ◌≤◌, false, length, drop};
ghost use Rattle.pending.specs.Scanning.{scan_from};
ghost use Rattle.ascii_scan.specs.Scan.{ended, feeding};

// Puts the digits at the start of `bytes` behind the `n` bytes pending, as far as they go on freely, and tells how many. Scanning goes on behind them as
// it would have from the first of them on, and CR has not come. They are stored by place: of what `iter_mut` lends a proof knows the count alone.
pub(crate) fn push_digits(held: &mut [u8; 512], n: usize, bytes: &[u8]) -> usize
    requires le_n { 1 ≤ n }
    requires n_value { ended (record { bytes = held.old; len = n }) ≡ false }
    ensures within { result ≤ length bytes.now }
    ensures few { result ≤ 509 - n }
    ensures opened { ended (record { bytes = held.new; len = n + result }) ≡ false }
    ensures same { scan_from feeding (record { bytes = held.new; len = n + result }) result (drop result bytes.now)
        ≡ scan_from feeding (record { bytes = held.old; len = n }) 0 bytes.now }
{
    if 509 <= n {
        return 0;
    }
    let end = bytes.len().min(509 - n);
    for (i, &byte) in bytes[..end].iter().enumerate() {
        if !byte.is_ascii_hexdigit() {
            return i;
        }
        held[n + i] = byte;
    }
    end
}

// Parity: seven bits of a byte are data, and bit 7 makes the count of ones odd.
ghost use Rattle.std.specs.Prelude.{◌≡◌};
ghost use Rattle.code.specs.Parity.{is_odd, stripped, with_parity};

// Whether a received byte passes: its count of ones is odd.
pub fn check_odd_parity(byte: u8) -> bool
    ensures { result ≡ is_odd byte }
{
    byte.count_ones() % 2 == 1
}

// The seven bits of data.
pub fn strip_parity(byte: u8) -> u8
    ensures { result ≡ stripped byte }
{
    byte % 128
}

// The seven bits of data, with bit 7 such that the count of ones is odd.
pub fn add_parity(byte: u8) -> u8
    ensures { result ≡ with_parity byte }
{
    let data = byte % 128;
    if check_odd_parity(data) {
        data
    } else {
        data + 128
    }
}

//! Fields of fixed sizes at the front of bytes.
ghost use Rattle.std.specs.Prelude.{◌≡◌, ◌≤◌, IfSome, length, option_map};
ghost use Rattle.bgp_attrs.specs.Fixed.{addr_at, addr_of, addr_size, as_width, asn_at, byte_at, cut, four_at, path_at, two_at};

use path_model::Addr;

/// So many bytes, and what follows them; `None` where they are cut.
#[inline(always)]
pub fn take(bytes: &[u8], count: usize) -> Option<(&[u8], &[u8])>
    ensures taken { option_map (λ x. (x.0.now, x.1.now)) result ≡ cut count bytes.now }
    ensures size { IfSome result (λ x. length x.0.now ≡ count) }
{
    if bytes.len() < count {
        return None;
    }
    Some(bytes.split_at(count))
}

/// A number of one byte, and what follows it; `None` where it is cut.
#[inline(always)]
pub fn take_byte(bytes: &[u8]) -> Option<(u8, &[u8])>
    ensures { option_map (λ x. (x.0, x.1.now)) result ≡ byte_at bytes.now }
{
    match bytes {
        [n, rest @ ..] => Some((*n, rest)),
        [] => None,
    }
}

/// A number of two bytes, and what follows it; `None` where it is cut.
#[tactic(auto, unfolding(crate::specs::Fixed::two_at))]
#[inline(always)]
pub fn take_two(bytes: &[u8]) -> Option<(u16, &[u8])>
    ensures { option_map (λ x. (x.0, x.1.now)) result ≡ two_at bytes.now }
{
    match bytes {
        [a, b, rest @ ..] => Some((u16::from_be_bytes([*a, *b]), rest)),
        _ => None,
    }
}

/// A number of four bytes, and what follows it; `None` where it is cut.
#[tactic(auto, unfolding(crate::specs::Fixed::four_at))]
#[inline(always)]
pub fn take_four(bytes: &[u8]) -> Option<(u32, &[u8])>
    ensures { option_map (λ x. (x.0, x.1.now)) result ≡ four_at bytes.now }
{
    match bytes {
        [a, b, c, d, rest @ ..] => Some((u32::from_be_bytes([*a, *b, *c, *d]), rest)),
        _ => None,
    }
}

// How many bytes an AS has.
pub(crate) fn as_size(wide: bool) -> usize
    ensures { result ≡ as_width wide }
{
    if wide { 4 } else { 2 }
}

/// An AS, in four bytes where the field is wide (RFC 6793), else in two, and what follows it; `None` where it is cut.
#[inline(always)]
pub fn take_asn(bytes: &[u8], wide: bool) -> Option<(u32, &[u8])>
    ensures { option_map (λ x. (x.0, x.1.now)) result ≡ asn_at wide bytes.now }
{
    if wide {
        take_four(bytes)
    } else {
        let (asn, rest) = take_two(bytes)?;
        Some((u32::from(asn), rest))
    }
}

/// A path identifier of four bytes where each entry or prefix has one (RFC 7911, section 3), and what follows it; `None` where it is cut.
#[inline(always)]
pub fn take_path(bytes: &[u8], add_path: bool) -> Option<(Option<u32>, &[u8])>
    ensures { option_map (λ x. (x.0, x.1.now)) result ≡ path_at add_path bytes.now }
{
    if add_path {
        let (path, rest) = take_four(bytes)?;
        Some((Some(path), rest))
    } else {
        Some((None, bytes))
    }
}

/// An address of IPv6, or else of IPv4, and what follows it; `None` where it is cut.
#[tactic(auto, unfolding(crate::specs::Fixed::addr_at))]
pub fn take_addr(bytes: &[u8], six: bool) -> Option<(Addr, &[u8])>
    ensures { option_map (λ x. (x.0, x.1.now)) result ≡ addr_at six bytes.now }
{
    let (addr, rest) = take(bytes, size_of_addr(six))?;
    Some((padded_addr(addr, six), rest))
}

fn size_of_addr(six: bool) -> usize
    ensures { result ≡ addr_size six }
{
    if six { 16 } else { 4 }
}

// The address that begins with these bytes.
pub(crate) fn padded_addr(bytes: &[u8], six: bool) -> Addr
    requires { length bytes.now ≤ addr_size six }
    ensures { result ≡ addr_of six bytes.now }
{
    if six {
        let mut octets = [0u8; 16];
        octets[..bytes.len()].copy_from_slice(bytes);
        Addr::V6(u128::from_be_bytes(octets))
    } else {
        let mut octets = [0u8; 4];
        octets[..bytes.len()].copy_from_slice(bytes);
        Addr::V4(u32::from_be_bytes(octets))
    }
}

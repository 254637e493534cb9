//! UUIDs.
ghost use Rattle.std.specs.Prelude.{◌↔◌, IsTrue};
ghost use Rattle.std.specs.Str.{chars};
ghost use Rattle.std.specs.Str.Parse.{AllDigits};
ghost use Rattle.strkw_net.specs.Uuid.{IsUuid};

/// Whether the text is a UUID, RFC 9562, section 4 (RFC 4122, section 3, before it).
///
/// It is five runs of 8, 4, 4, 4 and 12 hexadecimal digits in either case, with `-` between them, as in
/// `f308a72c-fa84-11eb-9a03-0242ac130003`. Version and variant are not looked at.
pub fn is_valid_uuid(uuid: &str) -> bool
    ensures { IsTrue result ↔ IsUuid (chars uuid.now) }
{
    is_uuid(uuid.as_bytes())
}

fn is_uuid(bytes: &[u8]) -> bool
    ensures { IsTrue result ↔ IsUuid bytes.now }
{
    if bytes.len() != 36
        || bytes[8] != b'-'
        || bytes[13] != b'-'
        || bytes[18] != b'-'
        || bytes[23] != b'-'
    {
        return false;
    }
    if !is_hexadecimal(&bytes[..8]) {
        return false;
    }
    if !is_hexadecimal(&bytes[9..13]) {
        return false;
    }
    if !is_hexadecimal(&bytes[14..18]) {
        return false;
    }
    if !is_hexadecimal(&bytes[19..23]) {
        return false;
    }
    is_hexadecimal(&bytes[24..36])
}

/// Whether each byte is a hexadecimal digit.
fn is_hexadecimal(bytes: &[u8]) -> bool
    ensures { IsTrue result ↔ AllDigits 16 bytes.now }
{
    for b in bytes {
        if !b.is_ascii_hexdigit() {
            return false;
        }
    }
    true
}

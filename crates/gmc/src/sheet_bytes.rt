// The bytes of a sheet that a journal names: a file's, or written out in hexadecimal.
ghost use Rattle.std.specs.Prelude.{◌≡◌, ◌<◌, IfSome};
ghost use Rattle.gmc.specs.Hexadecimal.{byte_of, digit_of};

use crate::malformed::Malformed;
use sheet::check::MOST_BYTES;
use std::alloc::Global;
use std::fs::File;
use std::io;
use std::io::Read;

// One byte more than the longest sheet: whatever is longer is refused all the same. `as`, since no `From` leads from usize
// to u64.
const ENOUGH: u64 = MOST_BYTES as u64 + 1;

fn digit(byte: u8) -> Option<u32>
    ensures value { result ≡ digit_of byte }
    ensures low { IfSome result (λ d. d < 16) }
{
    char::from(byte).to_digit(16)
}

fn pair(high: u8, low: u8) -> Option<u8>
    ensures { result ≡ byte_of high low }
{
    u8::try_from(digit(high)? * 16 + digit(low)?).ok()
}

// The byte of two digits; one alone has none.
fn byte(digits: &[u8]) -> Option<u8> {
    match *digits {
        [high, low] => pair(high, low),
        _ => None,
    }
}

fn decode<'a>(heap: Global, digits: &'a str) -> Result<Vec<u8>, Malformed<'a>> {
    digits
        .as_bytes()
        .chunks(2)
        .map(|two| byte(two).ok_or(Malformed::NotHexadecimal))
        .try_collect(heap)
}

fn read_file(rt: &HostRuntime, path: &str) -> io::Result<Vec<u8>> {
    let mut bytes = Vec::new(rt.alloc());
    File::open(rt, path)?.take(ENOUGH).read_to_end(&mut bytes)?;
    Ok(bytes)
}

pub fn read<'a>(rt: &HostRuntime, source: &'a str) -> Result<Vec<u8>, Malformed<'a>> {
    match source.strip_prefix("hex:") {
        Some(digits) => decode(rt.alloc(), digits),
        None => read_file(rt, source).map_err(|_| Malformed::Unreadable(source)),
    }
}

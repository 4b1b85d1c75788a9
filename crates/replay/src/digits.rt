// A list's text as bytes.
use crate::bad_list::BadList;
use std::alloc::Global;

// A lower-case hexadecimal digit's value.
fn value(digit: u8) -> Result<u8, BadList> {
    match digit {
        b'0'..=b'9' => Ok(digit - b'0'),
        b'a'..=b'f' => Ok(digit - b'a' + 10),
        _ => Err(BadList::Misspelt),
    }
}

// A line feed may stand between two bytes.
pub(crate) fn decode(alloc: Global, text: &[u8]) -> Result<Vec<u8>, BadList> {
    let mut bytes = Vec::new(alloc);
    for line in text.split(|&byte| byte == b'\n') {
        for pair in line.chunks(2) {
            let &[high, low] = pair else {
                return Err(BadList::Misspelt);
            };
            bytes.push(value(high)? << 4 | value(low)?)?;
        }
    }
    Ok(bytes)
}

// The fields of a book's text, read back: numbers, texts behind their lengths, and counts of lines.
ghost use Rattle.std.specs.Prelude.{◌≡◌, ◌≤◌, IfSome, option_map};
ghost use Rattle.book_text.specs.Reading as spec;

use value_decimal::number_up_to;
use value_text::position_of;

// The number up to this one before the first such byte, and what follows that.
pub(crate) fn number_at(most: u64, stop: u8, text: &[u8]) -> Option<(u64, &[u8])>
    ensures value { option_map (λ found. (found.0, found.1.now)) result ≡ spec.number_at most stop text.now }
    ensures few { IfSome result (λ found. found.0 ≤ most) }
{
    let end = position_of(text, stop)?;
    let number = number_up_to(most, text.split_at(end).0)?;
    Some((number, text.split_at(end + 1).1))
}

// What was read, where this byte follows it.
fn stopped<'a>(stop: u8, front: &'a [u8], after: &'a [u8]) -> Option<(&'a [u8], &'a [u8])>
    ensures { option_map (λ found. (found.0.now, found.1.now)) result ≡ spec.stopped stop front.now after.now }
{
    match after {
        [byte, rest @ ..] if *byte == stop => Some((front, rest)),
        _ => None,
    }
}

// So many bytes, and what follows the byte after them.
fn bytes_at(stop: u8, count: u64, text: &[u8]) -> Option<(&[u8], &[u8])>
    ensures { option_map (λ found. (found.0.now, found.1.now)) result ≡ spec.bytes_at stop count text.now }
{
    if (text.len() as u64) < count {
        return None;
    }
    let (front, after) = text.split_at(count as usize);
    stopped(stop, front, after)
}

// The text behind its length, and what follows the byte after it.
pub(crate) fn text_at(stop: u8, text: &[u8]) -> Option<(&[u8], &[u8])>
    ensures { option_map (λ found. (found.0.now, found.1.now)) result ≡ spec.text_at stop text.now }
{
    let (count, rest) = number_at(u64::MAX, b':', text)?;
    bytes_at(stop, count, rest)
}

// What follows these bytes, where they are there.
pub(crate) fn after_prefix<'a>(prefix: &[u8], text: &'a [u8]) -> Option<&'a [u8]>
    ensures { option_map (λ rest. rest.now) result ≡ spec.after_prefix prefix.now text.now }
{
    if text.len() < prefix.len() {
        return None;
    }
    let (front, rest) = text.split_at(prefix.len());
    if front == prefix { Some(rest) } else { None }
}

// The line that counts what follows, and what that is.
pub(crate) fn count_at<'a>(label: &[u8], most: u64, text: &'a [u8]) -> Option<(u64, &'a [u8])>
    ensures value { option_map (λ found. (found.0, found.1.now)) result ≡ spec.count_at label.now most text.now }
    ensures few { IfSome result (λ found. found.0 ≤ most) }
{
    let rest = after_prefix(label, text)?;
    number_at(most, b'\n', rest)
}

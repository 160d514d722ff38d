// The parts of a line.

// The line from its first byte that is not zero.
pub(crate) fn begun(line: &[u8]) -> &[u8] {
    let start = line
        .iter()
        .position(|byte| *byte != 0)
        .unwrap_or(line.len());
    &line[start..]
}

// The number that some digits make; what does not fit 32 bits is cut off.
fn number(digits: &[u8]) -> u32 {
    digits.iter().fold(0, |n: u32, digit| {
        n.wrapping_mul(10)
            .wrapping_add(u32::from(digit.wrapping_sub(b'0')))
    })
}

// The first six numbers of a text, those that it lacks 0.
pub(crate) fn numbers(text: &[u8]) -> [u32; 6] {
    let mut six = [0; 6];
    let all = text
        .split(|byte| !byte.is_ascii_digit())
        .filter(|digits| !digits.is_empty());
    for (place, digits) in six.iter_mut().zip(all) {
        *place = number(digits);
    }
    six
}

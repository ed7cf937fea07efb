// What standard input holds: 64 running times of two bytes each, low byte first, and behind them a plan text. What is missing is 0, or nothing.

// The running times.
pub fn times_in(input: &[u8]) -> [u16; 64] {
    let mut times = [0; 64];
    for (time, bytes) in times.iter_mut().zip(input.chunks(2)) {
        *time = time_of(bytes);
    }
    times
}

// The running time that two bytes are.
fn time_of(bytes: &[u8]) -> u16 {
    match bytes {
        [low, high] => u16::from_le_bytes([*low, *high]),
        [low] => u16::from(*low),
        _ => 0,
    }
}

// The plan text.
pub fn text_in(input: &[u8]) -> &[u8] {
    input.get(128..).unwrap_or(&[])
}

// Reads a table from standard input and prints its plan on standard output, or why it is refused.
// 707 bytes are one more than the longest table: a longer input is refusal 5, unless 2 to 4 applies.
#![tactic(auto)]

fn main() {
    let mut input = [0u8; 707];
    let n = io::read_full(0, &mut input);
    let mut text = [0u8; 8192];
    let end = listing::write_listing(&input[..n], &mut text);
    io::write_all(1, &text[..end]);
}

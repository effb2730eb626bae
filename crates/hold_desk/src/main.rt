#![tactic(auto)]

// The program: a day sheet on standard input, its full plan's text or a refusal on standard output. What is written of what was read is
// `program::answer`, which is proved; here are only the two buffers and the two calls of the system.
// Kept: the kit's io, since std reads into a Vec or fills the buffer exactly, and here as much of a buffer is filled as there is input.
fn main() {
    let mut input = io::large_buffer();
    let read = io::read_full(0, &mut input);
    let mut text = io::buffer();
    io::write_all(1, program::answer(&input, read, &mut text));
}

// The slice printer: from standard input K as one byte and then the table, to standard output the slice as text, or the refusal.
#![tactic(auto)]

ghost use Rattle.std.specs.Prelude.{length};
ghost use Rattle.print_slice.specs.Buffers.{Decides, HoldsEvery};

// K, and a byte more than any table has.
fn input_room() -> [u8; 65537]
    ensures { Decides (length result) }
{
    [0; 65537]
}

fn text_room() -> [u8; 393210]
    ensures { HoldsEvery (length result) }
{
    [0; 393210]
}

// Reads as many bytes as decide what is printed, and prints it.
fn print(input: &mut [u8], text: &mut [u8])
    requires { Decides (length input.old) × HoldsEvery (length text.old) }
{
    let n = io::read_full(0, &mut *input);
    let shown = show::show_slice(&input[..n], &mut *text);
    let m = shown.length as usize;
    let written = io::write_all(1, &text[..m]);
    if !written {
        io::write_all(2, b"print_slice: standard output could not be written\n");
    }
}

fn main() {
    let mut input = input_room();
    let mut text = text_room();
    print(&mut input, &mut text);
}

// The Catalogue program: a problem's file on standard input, the reply on standard output.
#![tactic(auto)]

fn main(rt: HostRuntime) {
    let mut room = text::input_room();
    let input = streams::read_input(&rt, &mut room);
    if input.whole {
        let n = input.count;
        program_output::write_catalogue(&rt, &room[..n]);
    }
}

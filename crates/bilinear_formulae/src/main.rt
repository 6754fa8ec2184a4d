// The Formulae program: a problem's file on standard input, the formulae of its entries on standard output.
#![tactic(auto)]

fn main(rt: HostRuntime) {
    let mut room = text::input_room();
    let input = streams::read_input(&rt, &mut room);
    if input.whole {
        let n = input.count;
        program_output::write_formulae(&rt, &room[..n]);
    }
}

// The Check program: a formula's file on standard input, the reply on standard output.
#![tactic(auto)]

fn main(rt: HostRuntime) {
    let mut room = text::input_room();
    let input = streams::read_input(&rt, &mut room);
    if input.whole {
        let n = input.count;
        check_output::write_check(&rt, &room[..n]);
    }
}

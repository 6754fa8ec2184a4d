// The Turn program: a full product formula's file on standard input, the turned formula's on standard output.
#![tactic(auto)]

fn main(rt: HostRuntime) {
    let mut room = text::input_room();
    let input = streams::read_input(&rt, &mut room);
    if input.whole {
        let n = input.count;
        turn_output::write_turn(&rt, &room[..n]);
    }
}

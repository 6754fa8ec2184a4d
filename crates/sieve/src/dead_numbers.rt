// Flags of the numbers that a search leaves out: not 0 where the spaces with the number's generator are met, or are none of the walk's.
ghost use Rattle.std.specs.Prelude.{◌≡◌, ◌≤◌, length, replicate};
ghost use Rattle.sieve.specs.dead_numbers.Dead.{FlaggedBefore};
ghost use Rattle.residues.specs.Room.{search_room};

// Flags the numbers before `start` that are new at `h`: the spaces with their generators are none of the walk's from here on. `flags` are all 0 before.
pub fn flag_before(h: &[u64], start: usize, flags: &mut [u8])
    requires { (start ≤ length h.now) × (length h.now ≤ search_room) × (flags.old ≡ replicate search_room 0) }
    ensures { FlaggedBefore h.now start flags.new }
{
    for i in 0..start {
        if h[i] != 0 {
            flags[i] = 1;
        }
    }
}

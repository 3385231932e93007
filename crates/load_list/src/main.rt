// Writes many loads, each as a line with seed, p, the buffer's room and what is answered, then the buffer's bytes after the call
// and a line feed: the ends of both ranges, seeds over the whole range with five bytes after the file, and refused ones. Each
// buffer holds 165 in every byte before the call.
#![tactic(auto)]

ghost use Rattle.std.specs.Prelude.{◌≤◌};

use load::{MOST_SEED, load};

// The longest buffer.
const MOST_ROOM: usize = 8_300;

// Makes a load in a buffer of so much room, and writes what is answered and the buffer's bytes.
fn print_load(rt: &impl Print, seed: u64, p: u64, room: usize)
    requires { room ≤ 8_300 }
{
    let mut space = [165u8; MOST_ROOM];
    let buffer = &mut space[..room];
    let _ = match load(seed, p, buffer) {
        Ok(bytes) => println!(rt; "{seed} {p} {room} made {bytes}"),
        Err(refused) => println!(rt; "{seed} {p} {room} refused {refused}"),
    };
    let _ = rt.write_all(buffer);
    let _ = rt.write_all(b"\n");
}

// The ends of both ranges.
fn print_ends(rt: &impl Print) {
    for (seed, p, room) in [
        (1, 1, 68),
        (1, 256, 8_228),
        (MOST_SEED, 1, 68),
        (MOST_SEED, 256, 8_228),
    ] {
        print_load(rt, seed, p, room);
    }
}

// Seeds over the whole range, with five bytes after the file.
fn print_seeds(rt: &impl Print) {
    for k in 1..=300u64 {
        let p = 1 + k % 8;
        print_load(rt, 7_158_278 * k, p, (36 + 32 * p + 5) as usize);
    }
}

// Seeds out of their range.
fn print_refused_seeds(rt: &impl Print) {
    for seed in [0, MOST_SEED + 1, 4_294_967_297, u64::MAX] {
        print_load(rt, seed, 1, 68);
    }
}

// Numbers of positions out of their range.
fn print_refused_numbers(rt: &impl Print) {
    for (p, room) in [
        (0, 68),
        (257, MOST_ROOM),
        (4_294_967_297, MOST_ROOM),
        (u64::MAX, MOST_ROOM),
        (576_460_752_303_423_488, 68),
    ] {
        print_load(rt, 1, p, room);
    }
}

// Buffers that are too short.
fn print_short_buffers(rt: &impl Print) {
    for (p, room) in [(1, 67), (256, 8_227), (1, 0)] {
        print_load(rt, 1, p, room);
    }
}

fn main(rt: HostRuntime) {
    print_ends(&rt);
    print_seeds(&rt);
    print_refused_seeds(&rt);
    print_refused_numbers(&rt);
    print_short_buffers(&rt);
}

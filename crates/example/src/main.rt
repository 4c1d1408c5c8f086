// How the calls are used, as the README shows it: a frame is encoded, loses two planes on the way, and is decoded.
#![tactic(auto)]

use decode::decode;
use drop_planes::drop_planes;
use encode::encode;
use replies::Refusal;
use reset::reset;
use state::State;
use state::numbers::same_state;

// What cannot be printed is left out.
fn main(rt: HostRuntime) -> Result<(), Refusal> {
    let started = reset(2);
    started.done?;
    send(&rt, started.state, started.state)
}

fn send(rt: &impl Print, near: State, far: State) -> Result<(), Refusal> {
    let speech = [0x7f; 160];
    let mut radio = [0; 103];
    let mut thin = [0; 63];
    let mut sound = [0; 160];
    let sent = encode(near, 0, 2, 5, &speech, &mut radio); // mu-law in, a numbered frame, 40 kbit/s
    let n = sent.done?;
    let m = drop_planes(&radio[..n], 3, &mut thin)?; // two planes thrown away: 24 kbit/s
    let decoded = decode(far, 1, &thin[..m], &mut sound); // A-law out
    let k = decoded.done?.samples;
    let _ = println!(rt; "encode: reply 0, octets {n}");
    let _ = println!(rt; "drop: reply 0, octets {m}");
    let _ = println!(rt; "decode: reply 0, octets {k}");
    if same_state(sent.state, decoded.state) {
        let _ = println!(rt; "both ends have the same state");
    }
    Ok(())
}

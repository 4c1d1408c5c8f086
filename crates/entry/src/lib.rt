// The two tools as functions: each does what the program's words ask, and answers the status that the program ends with. It stays a number:
// so it was answered to a main in C, which called them by these names.
#![tactic(auto)]

pub fn parchfennel(rt: &HostRuntime) -> u8 {
    u8::from(tool::run(rt))
}

pub fn sequences(rt: &HostRuntime) -> u8 {
    u8::from(sequence_tool::run(rt))
}

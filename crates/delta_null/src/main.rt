// Reads a script from standard input and writes its tree file to standard output; if refused, 7F 00 01 and the
// number. Writes nothing if standard input cannot be read to its end. Reports a failed read or write on standard
// error; the exit status is always 0.
#![tactic(auto)]

use definition::limit;
use replay_cases::whole;
use std::io::Read;

fn run(rt: &impl Print, input: &mut impl Read) -> Result<(), &'static str> {
    // One byte more than the longest script, so that a longer input is refused and not cut.
    let mut space = [0; limit::SCRIPT_BYTES + 1];
    let mut file = [0; limit::FILE_BYTES];
    let script = whole(input, &mut space).ok_or("standard input cannot be read to its end")?;
    let written = match reader::read_script(script, &mut file) {
        Ok(bytes) => rt.write_all(&file[..bytes]),
        Err(refusal) => rt.write_all(&[0x7F, 0, 1, refusal as u8]),
    };
    // Errors come last in the file, so one without its last bytes can look clean.
    written.map_err(|_| "the tree file is not written whole")
}

fn main(rt: HostRuntime) {
    if let Err(message) = run(&rt, &mut rt.stdin()) {
        let _ = eprintln!(rt; "delta_null: {message}");
    }
}

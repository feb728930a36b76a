// Reads a book from standard input to its end and writes its listing to standard output.
#![tactic(auto)]

use program::Messages;

// The longest listing has 312 bytes.
fn main(rt: HostRuntime) {
    let messages = Messages {
        waits: b"amps: reads a book from standard input (amps < FILE)\n",
        unread: b"amps: standard input cannot be read\n",
    };
    let mut text = [0u8; 312];
    let _ = program::run(
        &messages,
        b"amps: standard output cannot be written\n",
        &mut rt.stdin(),
        &mut rt.stdout(),
        &mut rt.stderr(),
        &mut text,
        listing::list,
    );
}

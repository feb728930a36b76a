// Reads a book from standard input to its end and writes the listing of its paths to standard output.
#![tactic(auto)]

use program::Messages;

// The longest listing has 888 bytes.
fn main(rt: HostRuntime) {
    let messages = Messages {
        waits: b"paths: reads a book from standard input (paths < FILE)\n",
        unread: b"paths: standard input cannot be read\n",
    };
    let mut text = [0u8; 888];
    let _ = program::run(
        &messages,
        b"paths: standard output cannot be written\n",
        &mut rt.stdin(),
        &mut rt.stdout(),
        &mut rt.stderr(),
        &mut text,
        path_listing::list,
    );
}

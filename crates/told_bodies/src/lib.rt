// Inner: the calls for C on a circuit's amplitude and on a table body, each told behind pointers. They ask nothing of their callers.
#![tactic(auto)]

ghost use Rattle.told.specs.Told.{behind};
ghost use Rattle.told_bodies.specs.Bodies.{AmplitudeTold, EntryTold, WriteTold};

// The amplitude of a circuit of an edition.
pub fn amplitude(
    edition: u8,
    width: u8,
    input: u32,
    output: u32,
    gates: &[u8],
    zero: &mut u8,
    power: &mut i32,
    phase: &mut u8,
) -> u8
    ensures { AmplitudeTold edition width input output gates.now (behind zero.old power.old phase.old) result (behind zero.new power.new phase.new) }
{
    let a = circuit::amplitude(edition, width, input, output, gates).map_err(u8::from);
    told::answer(a, zero, power, phase)
}

// The entry of a table body at an assignment of its bits.
pub fn entry(body: &[u8], width: u8, x: u64, zero: &mut u8, power: &mut i32, phase: &mut u8) -> u8
    ensures { EntryTold width body.now x (behind zero.old power.old phase.old) result (behind zero.new power.new phase.new) }
{
    let r = body_read::read(body, width);
    let refusal = r.refusal;
    if refusal != 0 {
        return refusal;
    }
    let t = r.table;
    let a = call_asking::entry(t, x).map_err(u8::from);
    told::answer(a, zero, power, phase)
}

// A table body, tested, in an area from a start on.
pub fn write(body: &[u8], width: u8, area: &mut [u8], start: usize, bytes: &mut usize) -> u8
    ensures { WriteTold width body.now area.old start result bytes.new area.new }
{
    let r = body_read::read(body, width);
    let refusal = r.refusal;
    if refusal != 0 {
        *bytes = 0;
        return refusal;
    }
    let t = r.table;
    let w = body_write::write(t, area, start);
    let n = w.bytes;
    *bytes = n;
    w.refusal
}

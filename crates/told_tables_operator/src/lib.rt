// The call for C that hands over the operator table of a circuit, in the bytes that it lends. Any bytes and any numbers are taken.
#![tactic(auto)]

ghost use Rattle.told_tables_operator.specs.Operator.{OperatorTold};

// The operator table of a circuit of an edition: refused as the circuit is, then by 13 where the bytes are not those of a table.
pub fn operator(edition: u8, width: u8, gates: &[u8], area: &mut [u8]) -> u8
    ensures { OperatorTold edition width gates.now area.old result area.new }
{
    let r = operator::table_of(edition, width, gates);
    let refusal = r.refusal;
    if refusal != 0 {
        return refusal;
    }
    if area.len() != image::BYTES {
        return exact::AREA_SHORT;
    }
    let t = r.table;
    told_tables::put_back(area, t, 0)
}

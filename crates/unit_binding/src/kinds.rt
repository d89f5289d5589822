// Kinds of units.
ghost use Rattle.std.specs.Prelude.{◌≡◌};
ghost use Rattle.op_graph.specs.Graph.{same_kind};

use op_graph::node::Kind;

/// Whether operations of the two kinds share units: products of one width, and quotients and remainders of one width
/// and sign.
pub fn share_units(left: Kind, right: Kind) -> bool
    ensures { result ≡ same_kind left right }
{
    match (left, right) {
        (Kind::Multiply { width: w }, Kind::Multiply { width: v }) => w == v,
        (
            Kind::Divide {
                width: w,
                signed: s,
            },
            Kind::Divide {
                width: v,
                signed: t,
            },
        ) => w == v && s == t,
        _ => false,
    }
}

//! The spot of a type, and what its instructions state of a simple type.

use base_texts::WhiteSpace;

/// How a type is related to an order of child elements. The items of an ENUMERATED without numbers represent words, and in an order
/// they represent components.
#[derive(Clone, Copy)]
pub enum Spot {
    /// It is in no order.
    Elsewhere,
    /// It is the type of the part that has the order.
    Order,
    /// It is the item of that type.
    OrderItem,
}

/// The instructions of a type except TEXT, which states nothing of a simple type.
#[derive(Clone, Copy)]
pub enum Alone {
    Nothing,
    UseNumber,
    List,
    UseUnion,
    WhiteSpace { how: WhiteSpace },
    /// Another instruction, or more than one.
    Other,
}

// What a request says of itself: 000's `EndpointType` and `Direction`.
ghost use Rattle.std.specs.Prelude.{◌≡◌};
ghost use Rattle.common.specs.Kinds.{is_control, is_isochronous, is_interrupt};

// The last of the kinds, numbered from 0 in this order.
pub const KIND_MAX: u8 = 3;

#[derive(Clone, Copy, PartialEq, Eq)]
pub enum EndpointType {
    Control,
    Isochronous,
    Bulk,
    Interrupt,
}

#[derive(Clone, Copy, PartialEq, Eq)]
pub enum Direction {
    Out,
    In,
}

pub fn is_control(kind: EndpointType) -> bool
    ensures { result ≡ is_control kind }
{
    matches!(kind, EndpointType::Control)
}

pub fn is_isochronous(kind: EndpointType) -> bool
    ensures { result ≡ is_isochronous kind }
{
    matches!(kind, EndpointType::Isochronous)
}

pub fn is_interrupt(kind: EndpointType) -> bool
    ensures { result ≡ is_interrupt kind }
{
    matches!(kind, EndpointType::Interrupt)
}

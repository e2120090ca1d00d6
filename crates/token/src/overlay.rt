// The token of a head's overlay: of what the controller leaves there only the toggle outlives a request.
ghost use Rattle.std.specs.Prelude.{◌≡◌};
ghost use Rattle.token.specs.Overlay.{kept_toggle, overlay_token};

use crate::qtd::QtdToken;
use common::kinds::{EndpointType, is_control};

// The toggle of the next packet, as the controller left it.
pub fn kept_toggle(token: u32) -> bool
    ensures { result ≡ kept_toggle token }
{
    token / QtdToken::DATA_TOGGLE % 2 != 0
}

// What a request starts with. Control descriptors bring their own toggle.
pub fn overlay_token(kind: EndpointType, toggle: bool) -> u32
    ensures { result ≡ overlay_token kind toggle }
{
    if is_control(kind) {
        return 0;
    }
    if toggle {
        return QtdToken::DATA_TOGGLE;
    }
    0
}

// The tokens of a request: the three stages of a control request, and the token of a chunk.
ghost use Rattle.std.specs.Prelude.{◌≡◌, eqb};
ghost use Rattle.token.specs.Plans.{pid_for, status_pid, control_plan, chunk_token};

use crate::qtd::{QtdPid, QtdToken};
use common::kinds::Direction;

// A control request may lack the data stage.
#[derive(Clone, Copy, PartialEq, Eq)]
pub struct ControlTdPlan {
    pub setup: QtdToken,
    pub data: Option<QtdToken>,
    pub status: QtdToken,
}

pub fn pid_for(direction: Direction) -> QtdPid
    ensures { result ≡ pid_for direction }
{
    match direction {
        Direction::Out => QtdPid::Out,
        Direction::In => QtdPid::In,
    }
}

// Out after In data, otherwise In.
fn status_pid(direction: Direction, length: u64) -> QtdPid
    ensures { result ≡ status_pid direction (eqb length 0) }
{
    if length == 0 {
        return QtdPid::In;
    }
    match direction {
        Direction::Out => QtdPid::In,
        Direction::In => QtdPid::Out,
    }
}

pub fn build_control_td_plan(direction: Direction, length: u64) -> ControlTdPlan
    ensures { result ≡ control_plan direction length }
{
    let setup = QtdToken::started(QtdPid::Setup, 8, false, false);
    let status = QtdToken::started(status_pid(direction, length), 0, true, true);
    if length == 0 {
        return ControlTdPlan {
            setup,
            data: None,
            status,
        };
    }
    let data = QtdToken::started(pid_for(direction), length, false, true);
    ControlTdPlan {
        setup,
        data: Some(data),
        status,
    }
}

// The token of one chunk of a bulk or interrupt request.
pub fn chunk_token(direction: Direction, bytes: u64, last: bool) -> QtdToken
    ensures { result ≡ chunk_token direction bytes last }
{
    QtdToken::started(pid_for(direction), bytes, last, false)
}

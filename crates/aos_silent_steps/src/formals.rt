// Procedures with the same formals.
ghost use Rattle.std.specs.Prelude.{◌≡◌};
ghost use Rattle.aos_code.specs.Silent.{same_kind as same_kind_of, same_param as same_param_of, same_params as same_params_of, same_result as same_result_of, same_formals as same_formals_of};

use aos_code::{Kind, ParamKind, ProcShape};

fn same_kind(one: Kind, other: Kind) -> bool
    ensures { result ≡ same_kind_of one other }
{
    match (one, other) {
        (Kind::N, Kind::N) => true,
        (Kind::R, Kind::R) => true,
        (Kind::C, Kind::C) => true,
        (Kind::A, Kind::A) => true,
        _ => false,
    }
}

fn same_param(one: ParamKind, other: ParamKind) -> bool
    ensures { result ≡ same_param_of one other }
{
    match (one, other) {
        (ParamKind::Scalar(kind), ParamKind::Scalar(named)) => same_kind(kind, named),
        (ParamKind::Whole(cells), ParamKind::Whole(named)) => cells == named,
        (ParamKind::Place, ParamKind::Place) => true,
        (ParamKind::Open(lengths, true, cells), ParamKind::Open(rows, true, named)) => {
            lengths == rows && cells == named
        }
        (ParamKind::Open(lengths, false, cells), ParamKind::Open(rows, false, named)) => {
            lengths == rows && cells == named
        }
        _ => false,
    }
}

fn same_params(one: &[ParamKind], other: &[ParamKind]) -> bool
    ensures { result ≡ same_params_of one.now other.now }
{
    match one {
        [] => match other {
            [] => true,
            [_, ..] => false,
        },
        [param, params @ ..] => match other {
            [] => false,
            [named, others @ ..] => same_param(*param, *named) && same_params(params, others),
        },
    }
}

fn same_result(one: Option<Kind>, other: Option<Kind>) -> bool
    ensures { result ≡ same_result_of one other }
{
    match (one, other) {
        (None, None) => true,
        (Some(kind), Some(named)) => same_kind(kind, named),
        _ => false,
    }
}

/// Whether two procedures have the same kinds of parameters and of a result.
pub fn same_formals(one: &ProcShape, other: &ProcShape) -> bool
    ensures { result ≡ same_formals_of one.now other.now }
{
    same_params(&one.params, &other.params) && same_result(one.result, other.result)
}

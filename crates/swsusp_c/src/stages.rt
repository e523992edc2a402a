//! The stages of a resume, as numbers.
ghost use Rattle.std.specs.Prelude.{◌≡◌};
ghost use Rattle.swsusp_c.specs.Stages.{stage_code, stage_of};

use boot_resume::Stage;

/// Returns the number of a stage.
pub(crate) fn stage_code(stage: Stage) -> u32
    ensures { result ≡ stage_code stage }
{
    match stage {
        Stage::FirstSync => 1,
        Stage::Header => 2,
        Stage::TakeBack => 3,
        Stage::SettleBack => 4,
        Stage::ListMap => 5,
        Stage::ListPage => 6,
        Stage::NumberMap => 7,
        Stage::NumberPage => 8,
        Stage::DataMap => 9,
        Stage::DataPage => 10,
        Stage::Place => 11,
        Stage::Ended => 12,
    }
}

/// Returns the stage of a number.
pub(crate) fn stage_of(code: u32) -> Option<Stage>
    ensures { result ≡ stage_of code }
{
    match code {
        1 => Some(Stage::FirstSync),
        2 => Some(Stage::Header),
        3 => Some(Stage::TakeBack),
        4 => Some(Stage::SettleBack),
        5 => Some(Stage::ListMap),
        6 => Some(Stage::ListPage),
        7 => Some(Stage::NumberMap),
        8 => Some(Stage::NumberPage),
        9 => Some(Stage::DataMap),
        10 => Some(Stage::DataPage),
        11 => Some(Stage::Place),
        12 => Some(Stage::Ended),
        _ => None,
    }
}

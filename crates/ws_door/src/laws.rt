//! What follows from the contracts.

ghost use Rattle.std.specs.Prelude.{◌≡◌, ◌↔◌, List, ℕ, Result, Some};
ghost use Rattle.sg_outside.specs.Wire.{LineRead};
ghost use Rattle.gateway_config.specs.declared.config.Config.{Config};
ghost use Rattle.ws_door.specs.declared.answer.Upgrade.{Upgrade};
ghost use Rattle.ws_door.specs.declared.answer.Refused.{Refused};
ghost use Rattle.ws_door.specs.declared.heads.HeadFault.{HeadFault};
ghost use Rattle.ws_door.specs.Heads.{head_in, EndsReading};
ghost use Rattle.ws_door.specs.Upgrades.{IsUpgradeAnswer};

/// Head and configuration determine the answer.
pub fn one_answer()
    ensures { (head : List ℕ) (config : Config) (one other : Result Upgrade Refused)
        → IsUpgradeAnswer head config one → IsUpgradeAnswer head config other → one ≡ other }
{}

/// What the results of reading come to is how the last of them ends it, after all before were read on
/// from.
pub fn first_end()
    ensures { (results : List LineRead) (answer : Result (List ℕ) HeadFault)
        → (head_in results ≡ Some answer) ↔ EndsReading results answer }
{}

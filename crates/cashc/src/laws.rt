//! What is known of the redeem scripts of compiled sources.

ghost use Rattle.std.specs.Prelude.{◌≡◌, ◌≤◌, ◌+◌, ℕ, List, length, map, reverse, Ok};
ghost use Rattle.cash_base.specs.declared.place.Slot.{Slot};
ghost use Rattle.cash_tree.specs.declared.Ty.{Ty};
ghost use Rattle.cash_tree.specs.declared.Contract.{Contract as CashContract};
ghost use Rattle.script_codec.specs.Reading.{push};
ghost use Rattle.script_codec.specs.Spelling.{spellings};
ghost use Rattle.slot_lowering.specs.Room.{room};
ghost use Rattle.artifact_json.specs.Artifact.{Artifact};
ghost use Rattle.unlocker.specs.Scripts.{redeem_script};
ghost use Rattle.unlocker.specs.Building.{size_check};
ghost use Rattle.cash_compile.specs.Compile.{IsCompiled};

/// The redeem script of a compiled source is too long only where the pushes of the constructor's elements and the room of the
/// contract have over 520 bytes together.
pub fn redeem_scripts_fit()
    ensures { (source : List ℕ) (contract : CashContract Slot Ty) (program : Artifact) (ctor : List (List ℕ)) →
        IsCompiled source contract program → length (spellings (map push (reverse ctor))) + room contract ≤ 520
        → size_check (redeem_script program.code ctor) ≡ Ok (redeem_script program.code ctor) }
{}

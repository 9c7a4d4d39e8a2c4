//! What holds of the recipes for which the slots of a file stand, and slots that can be followed by hand.

ghost use Rattle.recipe_disk.specs.Laws.{RecipesAreOfNewestSlots};
ghost use Rattle.recipe_disk.specs.Worked.{WorkedSlots};

/// The recipe of a name is that of its newest open slot.
pub fn recipes_are_of_newest_slots()
    ensures { RecipesAreOfNewestSlots }
{}

/// Slots that stand for these recipes, and where others break.
pub fn worked_slots()
    ensures { WorkedSlots }
{}

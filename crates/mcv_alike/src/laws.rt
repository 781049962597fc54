//! What the plans of routes say of the routes.

ghost use Rattle.mcv_alike.specs.Laws.{AlikePlansDoAlike, WidenedPlansDeleteMore};

/// Routes whose plans do the same send and reply the same; where one's plan is widened by legs, its deletes send these too.
pub fn plans_tell_of_routes()
    ensures alike { AlikePlansDoAlike }
    ensures widened { WidenedPlansDeleteMore }
{}

//! Laws over the definitions. No code runs.

ghost use Rattle.meter_world.specs.Laws.{StepsLead, StepsLeadIn, RequestsAreExact};

/// The steps of a run lead to the world of its turns, and over one memory too; and a call asks for pages in vain exactly where it lacks
/// a run of its own.
pub fn meter_law()
    ensures leads { StepsLead }
    ensures leads_in { StepsLeadIn }
    ensures requests { RequestsAreExact }
{}

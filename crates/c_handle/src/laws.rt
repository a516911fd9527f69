// What no call shows.
ghost use Rattle.c_handle.specs.Codes.{AreNumbered};
ghost use Rattle.c_handle.specs.Crossing.{HandleCrosses};

// A handle that holds neither a fetch nor policies may cross threads: no function of a static library asks for it, so
// without this its proof could go missing.
pub fn law_handle_crosses()
    ensures { HandleCrosses }
{}

// Each code has a number of its own, which the header tells.
pub fn law_codes()
    ensures { AreNumbered }
{}

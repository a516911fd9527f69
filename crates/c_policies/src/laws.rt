// What no call shows.
ghost use Rattle.c_policies.specs.Numbers.{AreNumbered};

// Each constant has the number that the definitions give it, and the header tells.
pub fn law_numbers()
    ensures { AreNumbered }
{}

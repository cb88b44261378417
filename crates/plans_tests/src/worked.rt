// The definitions of `plans`, computed on board Z.
ghost use Rattle.plans_tests.specs.BoardZ.{BoardZ};

pub fn board_z_stands()
    ensures { BoardZ }
{}

//! Joint code in which loops are laid out: in the place of each stand its turns, one after the other. Nothing is computed here.

ghost use Rattle.vd_choreography_reorder.specs.LaidOut.{LaidOutCodeDoesTheSame, LaidOutCodeIsSmooth, LaidOutCodeIsTidy};

/// Laid-out code leads all hosts to where the code itself leads them, with the same packets, and runs smoothly where that does. It is tidy.
/// So it is whatever number of lines a loop may have that is laid out.
pub fn laid_out_code_does_the_same()
    ensures same { LaidOutCodeDoesTheSame }
    ensures smooth { LaidOutCodeIsSmooth }
    ensures tidy { LaidOutCodeIsTidy }
{}

// The law on what a command line asks for: the function does nothing, and its clauses are the law.
ghost use Rattle.std.specs.Prelude.{◌≡◌, List, String, option_map, string_bytes};
ghost use Rattle.std.specs.declared.alloc.Global.{Global};
ghost use Rattle.apei_cli.specs.Plan.{IsPlanOf};
ghost use Rattle.apei_cli.specs.declared.job.Plan.{Plan};

/// Words ask for one plan: any two of the same words have the same fields, and an image of the same path.
pub fn words_ask_for_one_plan()
    ensures plan { (words : List (String Global)) (one other : Plan) → IsPlanOf words one → IsPlanOf words other
        → one ≡ record other { image = one.image } }
    ensures path { (words : List (String Global)) (one other : Plan) → IsPlanOf words one → IsPlanOf words other
        → option_map string_bytes one.image ≡ option_map string_bytes other.image }
{}

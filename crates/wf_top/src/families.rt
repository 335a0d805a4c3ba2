// The families of commands of the program.
use wf_stage::Either;

/// All families as one, each in a line. They are asked for the words in this order, as specs/Families has them too.
pub type Families = Either<
    cmd_describe::Family,
    Either<
        cmd_ingest::Family,
        Either<
            cmd_ask::Family,
            Either<
                cmd_words::Family,
                Either<
                    cmd_explain::Family,
                    Either<cmd_share::Family, Either<cmd_decide::Family, cmd_make::Family>>,
                >,
            >,
        >,
    >,
>;

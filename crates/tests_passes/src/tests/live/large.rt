// Functions of some 4,000 nodes over 200 variables that are live around a loop. They have to be finished within the time that a
// test may take.

use super::helpers::left_of;
use std::alloc::Global;
use std::test::Fail;
use tests_texts::parts::{Part, text_of};
use tests_texts::verdict::row_passes;

/// Reads 200 variables.
const DECLARATIONS: &str =
    "int v0=read_word();int v1=read_word();int v2=read_word();int v3=read_word();int v4=read_word();int v5=read_word();\
     int v6=read_word();int v7=read_word();int v8=read_word();int v9=read_word();int v10=read_word();int v11=read_word();\
     int v12=read_word();int v13=read_word();int v14=read_word();int v15=read_word();int v16=read_word();int v17=read_word();\
     int v18=read_word();int v19=read_word();int v20=read_word();int v21=read_word();int v22=read_word();int v23=read_word();\
     int v24=read_word();int v25=read_word();int v26=read_word();int v27=read_word();int v28=read_word();int v29=read_word();\
     int v30=read_word();int v31=read_word();int v32=read_word();int v33=read_word();int v34=read_word();int v35=read_word();\
     int v36=read_word();int v37=read_word();int v38=read_word();int v39=read_word();int v40=read_word();int v41=read_word();\
     int v42=read_word();int v43=read_word();int v44=read_word();int v45=read_word();int v46=read_word();int v47=read_word();\
     int v48=read_word();int v49=read_word();int v50=read_word();int v51=read_word();int v52=read_word();int v53=read_word();\
     int v54=read_word();int v55=read_word();int v56=read_word();int v57=read_word();int v58=read_word();int v59=read_word();\
     int v60=read_word();int v61=read_word();int v62=read_word();int v63=read_word();int v64=read_word();int v65=read_word();\
     int v66=read_word();int v67=read_word();int v68=read_word();int v69=read_word();int v70=read_word();int v71=read_word();\
     int v72=read_word();int v73=read_word();int v74=read_word();int v75=read_word();int v76=read_word();int v77=read_word();\
     int v78=read_word();int v79=read_word();int v80=read_word();int v81=read_word();int v82=read_word();int v83=read_word();\
     int v84=read_word();int v85=read_word();int v86=read_word();int v87=read_word();int v88=read_word();int v89=read_word();\
     int v90=read_word();int v91=read_word();int v92=read_word();int v93=read_word();int v94=read_word();int v95=read_word();\
     int v96=read_word();int v97=read_word();int v98=read_word();int v99=read_word();int v100=read_word();int v101=read_word();\
     int v102=read_word();int v103=read_word();int v104=read_word();int v105=read_word();int v106=read_word();int v107=read_word();\
     int v108=read_word();int v109=read_word();int v110=read_word();int v111=read_word();int v112=read_word();int v113=read_word();\
     int v114=read_word();int v115=read_word();int v116=read_word();int v117=read_word();int v118=read_word();int v119=read_word();\
     int v120=read_word();int v121=read_word();int v122=read_word();int v123=read_word();int v124=read_word();int v125=read_word();\
     int v126=read_word();int v127=read_word();int v128=read_word();int v129=read_word();int v130=read_word();int v131=read_word();\
     int v132=read_word();int v133=read_word();int v134=read_word();int v135=read_word();int v136=read_word();int v137=read_word();\
     int v138=read_word();int v139=read_word();int v140=read_word();int v141=read_word();int v142=read_word();int v143=read_word();\
     int v144=read_word();int v145=read_word();int v146=read_word();int v147=read_word();int v148=read_word();int v149=read_word();\
     int v150=read_word();int v151=read_word();int v152=read_word();int v153=read_word();int v154=read_word();int v155=read_word();\
     int v156=read_word();int v157=read_word();int v158=read_word();int v159=read_word();int v160=read_word();int v161=read_word();\
     int v162=read_word();int v163=read_word();int v164=read_word();int v165=read_word();int v166=read_word();int v167=read_word();\
     int v168=read_word();int v169=read_word();int v170=read_word();int v171=read_word();int v172=read_word();int v173=read_word();\
     int v174=read_word();int v175=read_word();int v176=read_word();int v177=read_word();int v178=read_word();int v179=read_word();\
     int v180=read_word();int v181=read_word();int v182=read_word();int v183=read_word();int v184=read_word();int v185=read_word();\
     int v186=read_word();int v187=read_word();int v188=read_word();int v189=read_word();int v190=read_word();int v191=read_word();\
     int v192=read_word();int v193=read_word();int v194=read_word();int v195=read_word();int v196=read_word();int v197=read_word();\
     int v198=read_word();int v199=read_word();";

/// Moves each of the variables to the one before it.
const ROUND: &str =
    "v0=v1;v1=v2;v2=v3;v3=v4;v4=v5;v5=v6;v6=v7;v7=v8;v8=v9;v9=v10;v10=v11;v11=v12;v12=v13;v13=v14;v14=v15;v15=v16;v16=v17;v17=v18;\
     v18=v19;v19=v20;v20=v21;v21=v22;v22=v23;v23=v24;v24=v25;v25=v26;v26=v27;v27=v28;v28=v29;v29=v30;v30=v31;v31=v32;v32=v33;\
     v33=v34;v34=v35;v35=v36;v36=v37;v37=v38;v38=v39;v39=v40;v40=v41;v41=v42;v42=v43;v43=v44;v44=v45;v45=v46;v46=v47;v47=v48;\
     v48=v49;v49=v50;v50=v51;v51=v52;v52=v53;v53=v54;v54=v55;v55=v56;v56=v57;v57=v58;v58=v59;v59=v60;v60=v61;v61=v62;v62=v63;\
     v63=v64;v64=v65;v65=v66;v66=v67;v67=v68;v68=v69;v69=v70;v70=v71;v71=v72;v72=v73;v73=v74;v74=v75;v75=v76;v76=v77;v77=v78;\
     v78=v79;v79=v80;v80=v81;v81=v82;v82=v83;v83=v84;v84=v85;v85=v86;v86=v87;v87=v88;v88=v89;v89=v90;v90=v91;v91=v92;v92=v93;\
     v93=v94;v94=v95;v95=v96;v96=v97;v97=v98;v98=v99;v99=v100;v100=v101;v101=v102;v102=v103;v103=v104;v104=v105;v105=v106;\
     v106=v107;v107=v108;v108=v109;v109=v110;v110=v111;v111=v112;v112=v113;v113=v114;v114=v115;v115=v116;v116=v117;v117=v118;\
     v118=v119;v119=v120;v120=v121;v121=v122;v122=v123;v123=v124;v124=v125;v125=v126;v126=v127;v127=v128;v128=v129;v129=v130;\
     v130=v131;v131=v132;v132=v133;v133=v134;v134=v135;v135=v136;v136=v137;v137=v138;v138=v139;v139=v140;v140=v141;v141=v142;\
     v142=v143;v143=v144;v144=v145;v145=v146;v146=v147;v147=v148;v148=v149;v149=v150;v150=v151;v151=v152;v152=v153;v153=v154;\
     v154=v155;v155=v156;v156=v157;v157=v158;v158=v159;v159=v160;v160=v161;v161=v162;v162=v163;v163=v164;v164=v165;v165=v166;\
     v166=v167;v167=v168;v168=v169;v169=v170;v170=v171;v171=v172;v172=v173;v173=v174;v174=v175;v175=v176;v176=v177;v177=v178;\
     v178=v179;v179=v180;v180=v181;v181=v182;v182=v183;v183=v184;v184=v185;v185=v186;v186=v187;v187=v188;v188=v189;v189=v190;\
     v190=v191;v191=v192;v192=v193;v193=v194;v194=v195;v195=v196;v196=v197;v197=v198;v198=v199;v199=v0;";

/// The parts of a function that reads the variables, moves them round in a loop and returns one value, and how many of its nodes are
/// not nops: at first, without dead nodes, and without faint ones. A declaration takes a constant, which is dead, a read and a
/// move; the loop takes a nop, a read and a branch; and returning a constant takes two nodes. If no variable is returned, nothing
/// reads the first value of `v0`, since the loop sets `v0` first.
type Row = (&'static [Part<'static>], [usize; 3]);

const MAIN: Part<'static> = ("int main(void){", 1);

const READS: Part<'static> = (DECLARATIONS, 1);

const LOOP: Part<'static> = ("while(read_word()){", 1);

static ROTATIONS: [Row; 3] = [
    (
        &[MAIN, READS, LOOP, (ROUND, 16), ("}return v0;}", 1)],
        [3_805, 3_605, 3_605],
    ),
    (
        &[MAIN, READS, LOOP, (ROUND, 16), ("}return 0;}", 1)],
        [3_806, 3_605, 206],
    ),
    (
        &[MAIN, READS, LOOP, (ROUND, 1), ("}return 0;}", 1)],
        [806, 605, 206],
    ),
];

fn is_left(alloc: Global, row: &Row) -> Result<bool, Fail> {
    let text = text_of(alloc, row.0)?;
    Ok(left_of(alloc, text.as_slice())? == row.1)
}

#[test]
fn rotations(rt: HostRuntime) -> Result<(), Fail> {
    for number in 0..ROTATIONS.len() {
        row_passes(number, is_left(rt.alloc(), &ROTATIONS[number]))?;
    }
    Ok(())
}

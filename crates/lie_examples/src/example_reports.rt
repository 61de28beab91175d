// The reports of the files of the directory `examples`, from a model that was written apart.

pub const GROWTH: &[u8] =
    b"lie determining 1\nvars x\ndeps u\nfree f1(x,u)\nfree f2(x,u)\ngeneral x = f1\n\
    general u = f2\nremaining 1\nf2_x + u*f2_u - u*f1_x - u^2*f1_u - f2 = 0\nend\n";

pub const SLOPE: &[u8] =
    b"lie determining 1\nvars x\ndeps u\nfree f1(x,u)\nfree f2(x,u)\ngeneral x = f1\n\
    general u = f2\nremaining 1\nf2_x + x*f2_u - x*f1_x - x^2*f1_u - f1 = 0\nend\n";

pub const LINE: &[u8] =
    b"lie determining 1\nvars x\ndeps y\nfree f1(x,y)\nfree f2(x,y)\ngeneral x = f1\n\
    general y = f2\nremaining 4\nf1_yy = 0\nf2_xx = 0\nf2_yy - 2*f1_xy = 0\n\
    2*f2_xy - f1_xx = 0\nend\n";

pub const BLASIUS: &[u8] =
    b"lie determining 1\nvars x\ndeps u\nfree f1(x,u)\nfree f2(x,u)\ngeneral x = f1\n\
    general u = f2\nremaining 9\nf1_u = 0\nf1_uu = 0\nf1_uuu = 0\n2*f2_xxx + u*f2_xx = 0\n\
    6*f2_uu - 18*f1_xu + u*f1_u = 0\n2*f2_uuu - 6*f1_xuu - u*f1_uu = 0\n\
    6*f2_xu - 6*f1_xx + u*f1_x + f2 = 0\n6*f2_xuu - 6*f1_xxu + u*f2_uu - 2*u*f1_xu = 0\n\
    6*f2_xxu - 2*f1_xxx + 2*u*f2_xu - u*f1_xx = 0\nend\n";

pub const CHAZY: &[u8] =
    b"lie determining 1\nvars x\ndeps u\nfree f1(x,u)\nfree f2(x,u)\ngeneral x = f1\n\
    general u = f2\nremaining 9\nf1_u = 0\nf1_uu = 0\nf1_uuu = 0\nf2_xxx - 2*u*f2_xx = 0\n\
    3*f2_uu - 9*f1_xu - 2*u*f1_u = 0\n3*f2_xu - 3*f1_xx - 2*u*f1_x - 2*f2 = 0\n\
    f2_uuu - 3*f1_xuu + 2*u*f1_uu + 6*f1_u = 0\n\
    3*f2_xxu - f1_xxx - 4*u*f2_xu + 2*u*f1_xx + 6*f2_x = 0\n\
    3*f2_xuu - 3*f1_xxu - 2*u*f2_uu + 4*u*f1_xu + 3*f2_u + 3*f1_x = 0\nend\n";

pub const PAINLEVE: &[u8] =
    b"lie determining 1\nvars x\ndeps u\nfree f1(x,u)\nfree f2(x,u)\ngeneral x = f1\n\
    general u = f2\nremaining 4\nf1_uu = 0\nf2_uu - 2*f1_xu = 0\n\
    2*f2_xu - f1_xx - 18*u^2*f1_u - 3*x*f1_u = 0\n\
    f2_xx + 6*u^2*f2_u + x*f2_u - 12*u^2*f1_x - 2*x*f1_x - 12*u*f2 - f1 = 0\nend\n";

pub const HEAT: &[u8] =
    b"lie determining 1\nvars x t\ndeps u\nfree f1(x,t,u)\nfree f2(x,t,u)\nfree f3(x,t,u)\n\
    general x = f1\ngeneral t = f2\ngeneral u = f3\nremaining 9\nf2_u = 0\nf2_x = 0\nf1_uu = 0\n\
    f2_uu = 0\nf2_xu + f1_u = 0\nf3_uu - 2*f1_xu = 0\nf3_xx - f3_t = 0\n\
    f2_xx - f2_t + 2*f1_x = 0\n2*f3_xu - f1_xx + f1_t = 0\nend\n";

pub const BURGERS: &[u8] =
    b"lie determining 1\nvars x t\ndeps u\nfree f1(x,t,u)\nfree f2(x,t,u)\nfree f3(x,t,u)\n\
    general x = f1\ngeneral t = f2\ngeneral u = f3\nremaining 9\nf2_u = 0\nf2_x = 0\nf2_uu = 0\n\
    u*f2_uu - f1_uu = 0\nf2_xu + f1_u = 0\nf3_uu + 2*u*f2_xu - 2*f1_xu = 0\n\
    f3_xx - u*f3_x - f3_t = 0\nf2_xx - u*f2_x - f2_t + 2*f1_x = 0\n\
    2*f3_xu + u*f2_xx - f1_xx - u^2*f2_x - u*f2_t + u*f1_x + f1_t - f3 = 0\nend\n";

pub const FISHER: &[u8] =
    b"lie determining 1\nvars x t\ndeps u\nfree f1(x,t,u)\nfree f2(x,t,u)\nfree f3(x,t,u)\n\
    general x = f1\ngeneral t = f2\ngeneral u = f3\nremaining 9\nf2_u = 0\nf2_x = 0\nf1_uu = 0\n\
    f2_uu = 0\nf2_xu + f1_u = 0\nf3_uu + u^2*f2_uu - u*f2_uu - 2*f1_xu = 0\n\
    f2_xx - f2_t + u^2*f2_u - u*f2_u + 2*f1_x = 0\n\
    2*f3_xu + 2*u^2*f2_xu - 2*u*f2_xu - f1_xx + f1_t - u^2*f1_u + u*f1_u = 0\n\
    f3_xx + u^2*f2_xx - u*f2_xx - f3_t + u^2*f3_u - u*f3_u - u^2*f2_t + u*f2_t + u^4*f2_u - \
    2*u^3*f2_u + u^2*f2_u - 2*u*f3 + f3 = 0\nend\n";

pub const KORTEWEG_DE_VRIES: &[u8] =
    b"lie determining 1\nvars x t\ndeps u\nfree f1(x,t,u)\nfree f2(x,t,u)\nfree f3(x,t,u)\n\
    general x = f1\ngeneral t = f2\ngeneral u = f3\nremaining 18\nf1_u = 0\nf2_u = 0\nf2_x = 0\n\
    f1_uu = 0\nf2_uu = 0\nf2_xu = 0\nf2_xx = 0\nf1_uuu = 0\nf2_uuu = 0\nf2_xuu = 0\n\
    f3_uu - 3*f1_xu = 0\nf3_xu - f1_xx = 0\nf2_xxu - f1_u = 0\nf3_uuu - 3*f1_xuu = 0\n\
    f3_xuu - f1_xxu + u*f1_u = 0\nf3_xxx + u*f3_x + f3_t = 0\n\
    f2_xxx + u*f2_x + f2_t - 3*f1_x = 0\n3*f3_xxu - f1_xxx + 2*u*f1_x - f1_t + f3 = 0\nend\n";

pub const BOUSSINESQ: &[u8] =
    b"lie determining 1\nvars x t\ndeps u\nfree f1(x,t,u)\nfree f2(x,t,u)\nfree f3(x,t,u)\n\
    general x = f1\ngeneral t = f2\ngeneral u = f3\nremaining 31\nf1_u = 0\nf2_u = 0\nf2_x = 0\n\
    f1_uu = 0\nf2_uu = 0\nf2_xu = 0\nf2_xx = 0\nf1_uuu = 0\nf2_uuu = 0\nf2_xuu = 0\nf2_xxu = 0\n\
    f1_uuuu = 0\nf2_uuuu = 0\nf2_xuuu = 0\nf2_t - 2*f1_x = 0\nf3_uu - 4*f1_xu = 0\n\
    f3_uu - 2*f2_tu = 0\n2*f3_xu - 3*f1_xx = 0\n6*f2_xxu + u*f2_u = 0\nf3_uuu - 4*f1_xuu = 0\n\
    f3_uuuu - 4*f1_xuuu = 0\n2*f2_xxx + u*f2_x + f1_t = 0\n6*f3_xuu - 9*f1_xxu + u*f1_u = 0\n\
    6*f2_xxuu + u*f2_uu + f2_u = 0\nf3_xxxx + u*f3_xx + f3_tt = 0\n\
    6*f3_xxu - 4*f1_xxx + 2*u*f1_x + f3 = 0\n2*f2_xxxu + u*f2_xu + f1_tu + f2_x = 0\n\
    f2_xxxx - 2*f3_tu + u*f2_xx + f2_tt = 0\n4*f3_xuuu - 6*f1_xxuu - u*f1_uu + 3*f1_u = 0\n\
    6*f3_xxuu - 4*f1_xxxu + u*f3_uu - 2*u*f1_xu + f3_u + 2*f1_x = 0\n\
    4*f3_xxxu - f1_xxxx + 2*u*f3_xu - u*f1_xx - f1_tt + 2*f3_x = 0\nend\n";

pub const LAPLACE: &[u8] =
    b"lie determining 1\nvars x y\ndeps u\nfree f1(x,y,u)\nfree f2(x,y,u)\nfree f3(x,y,u)\n\
    general x = f1\ngeneral y = f2\ngeneral u = f3\nremaining 12\nf1_u = 0\nf2_u = 0\n\
    f1_uu = 0\nf2_uu = 0\nf2_y - f1_x = 0\nf2_x + f1_y = 0\nf2_xu + f1_yu = 0\n\
    f3_uu - 2*f1_xu = 0\nf3_uu - 2*f2_yu = 0\nf3_xx + f3_yy = 0\n2*f3_yu - f2_xx - f2_yy = 0\n\
    2*f3_xu - f1_xx - f1_yy = 0\nend\n";

pub const WAVE: &[u8] =
    b"lie determining 1\nvars x y t\ndeps u\nfree f1(x,y,t,u)\nfree f2(x,y,t,u)\n\
    free f3(x,y,t,u)\nfree f4(x,y,t,u)\ngeneral x = f1\ngeneral y = f2\ngeneral t = f3\n\
    general u = f4\nremaining 21\nf1_u = 0\nf2_u = 0\nf3_u = 0\nf1_uu = 0\nf2_uu = 0\n\
    f3_uu = 0\nf2_x + f1_y = 0\nf3_t - f1_x = 0\nf3_t - f2_y = 0\nf3_y - f2_t = 0\n\
    f3_x - f1_t = 0\nf2_xu + f1_yu = 0\nf3_yu - f2_tu = 0\nf3_xu - f1_tu = 0\n\
    f4_uu - 2*f1_xu = 0\nf4_uu - 2*f2_yu = 0\nf4_uu - 2*f3_tu = 0\nf4_xx + f4_yy - f4_tt = 0\n\
    2*f4_tu + f3_xx + f3_yy - f3_tt = 0\n2*f4_yu - f2_xx - f2_yy + f2_tt = 0\n\
    2*f4_xu - f1_xx - f1_yy + f1_tt = 0\nend\n";

pub const KADOMTSEV_PETVIASHVILI: &[u8] =
    b"lie determining 1\nvars x y t\ndeps u\nfree f1(x,y,t,u)\nfree f2(x,y,t,u)\n\
    free f3(x,y,t,u)\nfree f4(x,y,t,u)\ngeneral x = f1\ngeneral y = f2\ngeneral t = f3\n\
    general u = f4\nremaining 48\nf1_u = 0\nf2_u = 0\nf2_x = 0\nf3_u = 0\nf3_x = 0\nf1_uu = 0\n\
    f2_uu = 0\nf2_xu = 0\nf2_xx = 0\nf3_uu = 0\nf3_xu = 0\nf3_xx = 0\nf1_uuu = 0\nf2_uuu = 0\n\
    f2_xuu = 0\nf2_xxu = 0\nf3_uuu = 0\nf3_xuu = 0\nf1_uuuu = 0\nf2_uuuu = 0\nf2_xuuu = 0\n\
    f3_uuuu = 0\nf3_xuuu = 0\nf2_y - 2*f1_x = 0\n2*f3_y + f2_x = 0\n2*f3_yu + f2_xu = 0\n\
    f4_uu - 4*f1_xu = 0\nf4_uu - 2*f2_yu = 0\n2*f4_xu - 3*f1_xx = 0\n6*f2_xxu + u*f2_u = 0\n\
    6*f3_xxu + f1_u = 0\nf4_uuu - 4*f1_xuu = 0\nf4_uuuu - 4*f1_xuuu = 0\n\
    12*f3_xxu + 2*u*f3_u - 3*f1_u = 0\n6*f4_xuu - 9*f1_xxu + u*f1_u = 0\n\
    6*f2_xxuu + u*f2_uu + f2_u = 0\n4*f2_xxx + 2*u*f2_x + f2_t + 2*f1_y = 0\n\
    4*f3_xxx + 2*u*f3_x + f3_t - 3*f1_x = 0\n6*f3_xxuu + u*f3_uu + f1_uu + f3_u = 0\n\
    4*f4_xuuu - 6*f1_xxuu - u*f1_uu + 3*f1_u = 0\nf4_xxxx + u*f4_xx + f4_xt + f4_yy = 0\n\
    6*f4_xxu - 4*f1_xxx + 2*u*f1_x - f1_t + f4 = 0\n\
    4*f2_xxxu + 2*u*f2_xu + f2_tu + 2*f1_yu + 2*f2_x = 0\n\
    f2_xxxx - 2*f4_yu + u*f2_xx + f2_xt + f2_yy = 0\n\
    f3_xxxx - f4_xu + u*f3_xx + f3_xt + f3_yy = 0\n\
    4*f3_xxxu - f4_uu + 2*u*f3_xu + f3_tu + f1_xu + 2*f3_x = 0\n\
    6*f4_xxuu - 4*f1_xxxu + u*f4_uu - 2*u*f1_xu - f1_tu + f4_u + 2*f1_x = 0\n\
    4*f4_xxxu - f1_xxxx + 2*u*f4_xu + f4_tu - u*f1_xx - f1_xt - f1_yy + 2*f4_x = 0\nend\n";

pub const LORENZ: &[u8] =
    b"lie determining 1\nvars t\ndeps x y z\nfree f1(t,x,y,z)\nfree f2(t,x,y,z)\n\
    free f3(t,x,y,z)\nfree f4(t,x,y,z)\ngeneral t = f1\ngeneral x = f2\ngeneral y = f3\n\
    general z = f4\nremaining 3\n\
    3*f2_t - 30*x*f2_x + 30*y*f2_x - 3*x*z*f2_y + 84*x*f2_y - 3*y*f2_y + 3*x*y*f2_z - 8*z*f2_z \
    + 30*x*f1_t - 30*y*f1_t - 300*x^2*f1_x + 600*x*y*f1_x - 300*y^2*f1_x - 30*x^2*z*f1_y + \
    30*x*y*z*f1_y + 840*x^2*f1_y - 870*x*y*f1_y + 30*y^2*f1_y + 30*x^2*y*f1_z - 30*x*y^2*f1_z - \
    80*x*z*f1_z + 80*y*z*f1_z - 30*f3 + 30*f2 = 0\n\
    9*f4_t - 90*x*f4_x + 90*y*f4_x - 9*x*z*f4_y + 252*x*f4_y - 9*y*f4_y + 9*x*y*f4_z - \
    24*z*f4_z - 9*x*y*f1_t + 24*z*f1_t + 90*x^2*y*f1_x - 90*x*y^2*f1_x - 240*x*z*f1_x + \
    240*y*z*f1_x + 9*x^2*y*z*f1_y - 252*x^2*y*f1_y + 9*x*y^2*f1_y - 24*x*z^2*f1_y + \
    672*x*z*f1_y - 24*y*z*f1_y - 9*x^2*y^2*f1_z + 48*x*y*z*f1_z - 64*z^2*f1_z + 24*f4 - 9*x*f3 \
    - 9*y*f2 = 0\n\
    3*f3_t - 30*x*f3_x + 30*y*f3_x - 3*x*z*f3_y + 84*x*f3_y - 3*y*f3_y + 3*x*y*f3_z - 8*z*f3_z \
    + 3*x*z*f1_t - 84*x*f1_t + 3*y*f1_t - 30*x^2*z*f1_x + 30*x*y*z*f1_x + 840*x^2*f1_x - \
    870*x*y*f1_x + 30*y^2*f1_x - 3*x^2*z^2*f1_y + 168*x^2*z*f1_y - 6*x*y*z*f1_y - 2352*x^2*f1_y \
    + 168*x*y*f1_y - 3*y^2*f1_y + 3*x^2*y*z*f1_z - 84*x^2*y*f1_z + 3*x*y^2*f1_z - 8*x*z^2*f1_z \
    + 224*x*z*f1_z - 8*y*z*f1_z + 3*x*f4 + 3*f3 + 3*z*f2 - 84*f2 = 0\nend\n";

pub const SCHROEDINGER: &[u8] =
    b"lie determining 1\nvars x t\ndeps u v\nfree f1(x,t,u,v)\nfree f2(x,t,u,v)\n\
    free f3(x,t,u,v)\nfree f4(x,t,u,v)\ngeneral x = f1\ngeneral t = f2\ngeneral u = f3\n\
    general v = f4\nremaining 31\nf1_v = 0\nf1_u = 0\nf2_v = 0\nf2_u = 0\nf2_x = 0\nf1_vv = 0\n\
    f1_uv = 0\nf1_uu = 0\nf2_vv = 0\nf2_uv = 0\nf2_uu = 0\n2*f2_xv - f1_u = 0\n\
    2*f2_xv + f1_u = 0\n2*f2_xu - f1_v = 0\n2*f2_xu + f1_v = 0\n\
    f3_vv + u^2*v*f2_vv + v^3*f2_vv = 0\nf4_uu - u^3*f2_uu - u*v^2*f2_uu = 0\n\
    f3_uv + u^2*v*f2_uv + v^3*f2_uv - f1_xv = 0\nf3_uu + u^2*v*f2_uu + v^3*f2_uu - 2*f1_xu = 0\n\
    2*f3_xu + 2*u^2*v*f2_xu + 2*v^3*f2_xu - f1_xx = 0\n\
    f4_vv - u^3*f2_vv - u*v^2*f2_vv - 2*f1_xv = 0\nf4_uv - u^3*f2_uv - u*v^2*f2_uv - f1_xu = 0\n\
    2*f4_xv - 2*u^3*f2_xv - 2*u*v^2*f2_xv - f1_xx = 0\n\
    f4_v - f3_u - f2_t - 2*u^3*f2_v - 2*u*v^2*f2_v + 2*f1_x = 0\n\
    f4_v - f3_u + f2_t - 2*u^2*v*f2_u - 2*v^3*f2_u - 2*f1_x = 0\n\
    f2_xx - f4_u - f3_v + u^3*f2_u + u*v^2*f2_u - u^2*v*f2_v - v^3*f2_v = 0\n\
    f2_xx + f4_u + f3_v - u^3*f2_u - u*v^2*f2_u + u^2*v*f2_v + v^3*f2_v = 0\n\
    2*f3_xv + 2*u^2*v*f2_xv + 2*v^3*f2_xv + f1_t - u^2*v*f1_u - v^3*f1_u + u^3*f1_v + \
    u*v^2*f1_v = 0\n\
    2*f4_xu - 2*u^3*f2_xu - 2*u*v^2*f2_xu - f1_t + u^2*v*f1_u + v^3*f1_u - u^3*f1_v - \
    u*v^2*f1_v = 0\n\
    f3_xx + u^2*v*f2_xx + v^3*f2_xx - f4_t + u^2*v*f4_u + v^3*f4_u - u^3*f4_v - u*v^2*f4_v + \
    u^3*f2_t + u*v^2*f2_t - u^5*v*f2_u - 2*u^3*v^3*f2_u - u*v^5*f2_u + u^6*f2_v + \
    2*u^4*v^2*f2_v + u^2*v^4*f2_v + 2*u*v*f4 + 3*u^2*f3 + v^2*f3 = 0\n\
    f4_xx - u^3*f2_xx - u*v^2*f2_xx + f3_t - u^2*v*f3_u - v^3*f3_u + u^3*f3_v + u*v^2*f3_v + \
    u^2*v*f2_t + v^3*f2_t - u^4*v^2*f2_u - 2*u^2*v^4*f2_u - v^6*f2_u + u^5*v*f2_v + \
    2*u^3*v^3*f2_v + u*v^5*f2_v + u^2*f4 + 3*v^2*f4 + 2*u*v*f3 = 0\nend\n";

pub const EULER: &[u8] =
    b"lie determining 1\nvars x y t\ndeps u v p\nfree f1(x,y,t,u,v,p)\nfree f2(x,y,t,u,v,p)\n\
    free f3(x,y,t,u,v,p)\nfree f4(x,y,t,u,v,p)\nfree f5(x,y,t,u,v,p)\nfree f6(x,y,t,u,v,p)\n\
    general x = f1\ngeneral y = f2\ngeneral t = f3\ngeneral u = f4\ngeneral v = f5\n\
    general p = f6\nremaining 41\nf1_u = 0\nf2_u = 0\nf3_p = 0\nf3_v = 0\nf3_u = 0\nf6_u = 0\n\
    v*f3_p - f2_p = 0\nu*f3_p - f1_p = 0\nu*f3_v + f1_v = 0\nf3_u + f1_p = 0\n\
    v*f3_u - f2_u = 0\nf4_p - f3_x = 0\nf4_p + f3_x = 0\nf5_p - f3_y = 0\nf5_p + f3_y = 0\n\
    f5_y + f4_x = 0\nu^2*f3_p + f2_v - u*f1_p = 0\nf3_v - v*f3_p + f2_p = 0\n\
    f3_v + v*f3_p - f2_p = 0\nf3_u - u*f3_p + f1_p = 0\nf3_u + u*f3_p - f1_p = 0\n\
    f4_v + u*f3_y - f1_y = 0\nf5_u + v*f3_x - f2_x = 0\nf5_u - u*f5_p + f1_y = 0\n\
    u*f3_v - u*v*f3_p - f1_v + v*f1_p = 0\nu*f3_u - u^2*f3_p - f1_u + u*f1_p = 0\n\
    u*f3_u + v*f3_v - f2_v - f1_u = 0\nf6_v - u*f4_v - u^2*f3_y + u*f1_y = 0\n\
    f6_y + u*f5_x + v*f5_y + f5_t = 0\nf6_x - u*f5_y + v*f4_y + f4_t = 0\n\
    2*u*v*f3_p - f2_u - u*f2_p + f1_v - v*f1_p = 0\n\
    v*f3_u - u*v*f3_p - f2_u + u*f2_p + f1_v = 0\n\
    u*f3_u + v*f3_v - v^2*f3_p - f2_v + v*f2_p = 0\nu*f5_p + f4_v - v*f4_p + u*f3_y + f2_x = 0\n\
    f6_p - f4_u + v*f3_y + f3_t - f1_x = 0\nf5_v - f4_u - u*f3_x + v*f3_y - f2_y + f1_x = 0\n\
    u*f5_u - v^2*f3_y - v*f3_t + v*f2_y + f2_t - f5 = 0\n\
    u^2*f3_x + u*v*f3_y + u*f3_t - u*f1_x - v*f1_y - f1_t + f4 = 0\n\
    f6_p - f5_v + v*f5_p + u*f3_x + v*f3_y + f3_t - f2_y = 0\n\
    f6_v + u*v*f3_x + v^2*f3_y + v*f3_t - u*f2_x - v*f2_y - f2_t + f5 = 0\n\
    f6_u + u*f5_v - u*f4_u + 2*u*v*f3_y + u*f3_t - u*f2_y - v*f1_y - f1_t + f4 = 0\nend\n";
